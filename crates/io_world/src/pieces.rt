// Bytes that are given in pieces.
ghost use Rattle.std.specs.Prelude.{◌≡◌, ◌<◌, ◌==◌, [], length, take, drop, min};
ghost use Rattle.std.specs.List.{list_any};
ghost use Rattle.io_world.specs.Plans.{cut_or};

/// The most bytes that the read of this number gives: its cut, where one is stated that is at least
/// 1, and else `most`.
pub fn cut_at(cuts: &[usize], number: u64, most: usize) -> usize
    ensures value { result ≡ cut_or cuts.now number most }
    ensures some { 0 < most → 0 < result }
{
    match cuts.get(number as usize).copied() {
        Some(cut) if cut > 0 => cut,
        _ => most,
    }
}

/// Copies the first bytes into the room, as many as there are, as it holds, and at most `most`, and
/// answers how many.
pub fn give(bytes: &[u8], room: &mut [u8], most: usize) -> usize
    ensures count { result ≡ min (length bytes.now) (min (length room.old) most) }
    ensures given { take result room.new ≡ take result bytes.now }
    ensures behind { drop result room.new ≡ drop result room.old }
    ensures end { result ≡ 0 → 0 < most → 0 < length room.old → bytes.now ≡ [] }
{
    let count = bytes.len().min(room.len()).min(most);
    room[..count].copy_from_slice(&bytes[..count]);
    count
}

/// Whether a line feed is among these bytes.
pub fn has_line(bytes: &[u8]) -> bool
    ensures { result ≡ list_any (λ byte. byte == 10) bytes.now }
{
    bytes.contains(&b'\n')
}
