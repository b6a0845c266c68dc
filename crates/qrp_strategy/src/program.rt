//! The program: which words ask for it, and how it is done.

ghost use Rattle.qrp_program.specs.declared.stream.Stream.TheVariants.{Errors};
ghost use Rattle.qrp_strategy.specs.Output.{IsOutput};
ghost use Rattle.qrp_strategy.specs.Words.{IsRow};

use crate::running::run;
use crate::task::Task;
use crate::words::request;
use qbf_text::{Sink, Source};
use qrp_program::{Jobs, Sources, Status, Stream, Streams};
use std::alloc::Global;

impl Jobs for Task {
    ghost is_row = { IsRow };

    ghost refusals = { λ task. Errors };

    ghost is_output = { IsOutput };

    fn request(words: &[String]) -> Option<(Task, usize, Option<usize>)> {
        request(words)
    }

    fn refused_on(self) -> Stream {
        Stream::Errors
    }

    fn run<F: Source, T: Source, O: Sink, E: Sink>(
        self,
        alloc: Global,
        sources: &mut Sources<F, T>,
        streams: &mut Streams<O, E>,
    ) -> Status {
        run(alloc, self, sources, streams)
    }
}
