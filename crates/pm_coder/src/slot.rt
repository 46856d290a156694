//! A slot: the share of `true` among bits of one kind, and how many there were. The share moves
//! towards each bit, the less the more bits came before (as in lpaq, Mahoney).
ghost use Rattle.std.specs.Prelude.{◌≡◌, ◌≤◌};
ghost use Rattle.pm_coder.specs.Slots.{slot_share, slot_learned, risen, fallen};

/// A slot that has learnt nothing: the share is a half.
pub const NEW_SLOT: u32 = 0x8000_0000;

// The greatest share of a slot, which has 22 bits.
const MOST: u32 = 0x3f_ffff;

/// The share of `true` in 65,536ths, at least 1.
pub fn slot_share(slot: u32) -> u16
    ensures share { result ≡ slot_share slot }
    ensures some { 1 ≤ result }
{
    let share = (slot / 65536) as u16;
    share.max(1)
}

/// The slot after a bit. O(1) time, one division.
pub fn slot_learned(slot: u32, bit: bool) -> u32
    ensures { result ≡ slot_learned slot bit }
{
    let share = slot / 1024;
    let count = slot % 1024;
    let part = 65_536 / (count + 2);
    let moved = if bit {
        risen(share, part)
    } else {
        fallen(share, part)
    };
    moved * 1024 + (count + 1).min(127)
}

// The share that went a part, in 65,536ths, of its way to the greatest one.
#[tactic(auto, using(crate::proofs::SlotLaws::part_of))]
fn risen(share: u32, part: u32) -> u32
    requires share { share ≤ 4194303 }
    requires part { part ≤ 65535 }
    ensures value { result ≡ risen share part }
    ensures most { result ≤ 4194303 }
{
    let way = u64::from(MOST - share) * u64::from(part) / 65536;
    share + way as u32
}

// The share that went a part of its way to 0.
#[tactic(auto, using(crate::proofs::SlotLaws::part_above))]
fn fallen(share: u32, part: u32) -> u32
    requires share { share ≤ 4194303 }
    requires part { part ≤ 65535 }
    ensures value { result ≡ fallen share part }
    ensures most { result ≤ 4194303 }
{
    let way = (u64::from(share) * u64::from(part) + 65535) / 65536;
    share - way as u32
}
