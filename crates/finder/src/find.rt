// The finder: the problem's checks, then 17 and 18, then the search.
ghost use Rattle.std.specs.Prelude.{◌≡◌};
ghost use Rattle.finder.specs.Promise.{FoundIn, FoundAs};

use crate::NotFound;
use crate::bits::open_bytes;
use crate::room::write;
use crate::search::search;
use answers::limits::SEARCH_LIMIT;
use problem::good::Problem;
use values::bytes::witness_length;

// 17, 18, the first witness or none, of a good problem; each open byte is 0 or 1. Nothing is written before the search ends.
fn find_good(p: &Problem, room: &mut [u8]) -> Result<usize, NotFound>
    ensures { FoundIn p.now room.old result room.new }
{
    let bits = open_bytes(p);
    if SEARCH_LIMIT < bits {
        return Err(NotFound::TooMuchOpen(bits));
    }
    let needed = witness_length(p.shown());
    if room.len() < needed {
        return Err(NotFound::RoomTooSmall(needed));
    }
    let Some(best) = search(&p.held(), 1 << bits) else {
        return Err(NotFound::NoneExists);
    };
    write(p, best, room);
    Ok(needed)
}

// 15, 1 to 5, 17, 18, 0 or 29.
pub fn find(version: u32, words: &[u32], room: &mut [u8]) -> Result<usize, NotFound>
    ensures { FoundAs version words.now room.old result room.new }
{
    let p = Problem::new(version, words)?;
    find_good(&p, room)
}
