// A header's prologue, put at the front of a buffer in three copies. (FORMAT 9)
ghost use Rattle.std.specs.Prelude.{◌+◌, ◌≤◌, length};
ghost use Rattle.model.specs.Bytes.{thrice};
ghost use Rattle.model.specs.Writer.{prologue_start, prologue_bytes};
ghost use Rattle.put.specs.Put.{Put};

use crc::crc32;
use layout::{BOM, COPIES, FORMAT_VERSION, MAGIC};
use put::put_number;

// The three copies of the prologue, from the front of `out` on. The directory has this loop too: a closure that writes to `out`
// would need a longer contract than the loop.
pub(crate) fn put_prologues(out: &mut [u8], regions: u16, flags: u16) -> usize
    requires { 48 ≤ length out.old }
    ensures { Put out.old 0 (thrice (prologue_bytes regions flags)) result out.new }
{
    let mut next = 0;
    for _copy in 0..COPIES {
        next = put_prologue(out, next, regions, flags);
    }
    next
}

fn put_prologue_start(out: &mut [u8], at: usize, regions: u16, flags: u16) -> usize
    requires { at + 12 ≤ length out.old }
    ensures { Put out.old at (prologue_start regions flags) result out.new }
{
    let marker = put_number(out, at, MAGIC);
    let version = put_number(out, marker, BOM);
    let count = put_number(out, version, FORMAT_VERSION);
    let behind = put_number(out, count, regions);
    put_number(out, behind, flags)
}

fn put_prologue(out: &mut [u8], at: usize, regions: u16, flags: u16) -> usize
    requires { at + 16 ≤ length out.old }
    ensures { Put out.old at (prologue_bytes regions flags) result out.new }
{
    let checksum = put_prologue_start(out, at, regions, flags);
    let crc = crc32(&out[at..checksum]);
    put_number(out, checksum, crc)
}
