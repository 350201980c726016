// Reading one of several files in memory.
ghost use Rattle.std.specs.Prelude.{◌≡◌, ◌<◌, ◌≤◌, ◌++◌, length, take, drop, []};
ghost use Rattle.outside.specs.Script.{IsPlaceOf, content_at};

use crate::script::copy_front;

/// Where the next read begins: a place among the files, and how many of its bytes were read.
#[derive(Clone, Copy)]
pub(crate) struct Reading {
    pub(crate) place: usize,
    pub(crate) offset: usize,
}

/// The place of the file of this name.
pub(crate) fn place_of(files: &[(String, Vec<u8>)], name: &str) -> Option<usize>
    ensures { IsPlaceOf files.now name.now result }
{
    for (place, file) in files.iter().enumerate() {
        if file.0.as_str() == name {
            return Some(place);
        }
    }
    None
}

/// The bytes of the file at this place.
pub(crate) fn bytes_at(files: &[(String, Vec<u8>)], place: usize) -> &[u8]
    ensures { result.now ≡ content_at files.now place }
{
    match files.get(place) {
        Some(file) => &file.1,
        None => &[],
    }
}

/// Reads on, at most `piece` bytes, and gives their number.
pub(crate) fn read_on(content: &[u8], offset: &mut usize, buf: &mut [u8], piece: usize) -> usize
    requires { 0 < piece }
    ensures bound { result ≤ length buf.new }
    ensures piece { result ≤ piece }
    ensures left { drop offset.old content.now
        ≡ take result buf.new ++ drop offset.new content.now }
    ensures end { result ≡ 0 → 0 < length buf.new → drop offset.new content.now ≡ [] }
{
    let rest = content.get(*offset..).unwrap_or(&[]);
    let count = copy_front(rest, buf, piece);
    *offset += count;
    count
}
