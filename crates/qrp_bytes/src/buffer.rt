//! A text in a caller's buffer.

ghost use Rattle.std.specs.Prelude.{◌≡◌, ◌+◌, drop};
ghost use Rattle.qrp_bytes.specs.Buffers.{IsWritten, IsListed};

/// Puts a text at the front of the buffer, with a zero after it, if there is room for both.
/// Otherwise all of the buffer stays as it was. The bytes after the place of the zero stay in
/// either case.
///
/// Returns the length of the text.
pub fn put_text(buffer: &mut [u8], text: &[u8]) -> usize
    ensures written { IsWritten text.now buffer.old buffer.new result }
    ensures kept { drop (1 + result) buffer.new ≡ drop (1 + result) buffer.old }
{
    let n = text.len();
    if n < buffer.len() {
        buffer[..n].copy_from_slice(text);
        buffer[n] = 0;
    }
    n
}

/// Puts numbers at the front of a list if there is room for all of them, else none. The numbers
/// after these places stay in either case.
///
/// Returns how many numbers they are.
pub fn put_numbers(list: &mut [u64], numbers: &[u64]) -> usize
    ensures listed { IsListed numbers.now list.old list.new result }
    ensures kept { drop result list.new ≡ drop result list.old }
{
    let n = numbers.len();
    if n <= list.len() {
        list[..n].copy_from_slice(numbers);
    }
    n
}
