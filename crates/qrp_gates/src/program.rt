//! The program: which words ask for a job, and how it is done.

ghost use Rattle.qrp_gates.specs.Output.{IsOutput, refusals};
ghost use Rattle.qrp_gates.specs.Words.{IsRow};

use crate::job::Job;
use crate::running::run;
use crate::words::request;
use qbf_text::{Sink, Source};
use qrp_program::{Jobs, Sources, Status, Stream, Streams};
use std::alloc::Global;

impl Jobs for Job {
    ghost is_row = { IsRow };

    ghost refusals = { refusals };

    ghost is_output = { IsOutput };

    fn request(words: &[String]) -> Option<(Job, usize, Option<usize>)> {
        request(words)
    }

    fn refused_on(self) -> Stream {
        match self {
            Job::Clauses | Job::Strategy(..) => Stream::Errors,
            Job::Check(_) => Stream::Out,
        }
    }

    fn run<F: Source, T: Source, O: Sink, E: Sink>(
        self,
        alloc: Global,
        sources: &mut Sources<F, T>,
        streams: &mut Streams<O, E>,
    ) -> Status {
        run(alloc, self, sources, streams)
    }
}
