// Characters as entries of a lent list of numbers: 32 to 127. Entries as bytes, and bytes as entries.
#![tactic(auto)]

ghost use Rattle.std.specs.Prelude.{◌≡◌, pos};
ghost use Rattle.std.proofs.lemmas.List.Edits.{sets};
ghost use Rattle.characters.specs.Characters.{is_character, are_characters, low_eight, low_bytes};

#[tactic(auto, using(ranges::proofs::Entries::handed_on))]
pub fn is_character(v: i32) -> bool
    ensures { result ≡ is_character v }
{
    ranges::is_within(32, 127, v)
}

pub fn are_characters(list: &[i32]) -> bool
    ensures { result ≡ are_characters list.now }
{
    ranges::are_within(32, 127, list)
}

// The byte of an entry: its lowest eight bits.
#[tactic(auto, using(crate::proofs::Entries::masked_plus, crate::proofs::Entries::masked_narrow, crate::proofs::Entries::of_low_eight))]
pub fn byte_of(v: i32) -> u8
    ensures { result ≡ low_eight v }
{
    (v & 255) as u8
}

pub fn entry_of(b: u8) -> i32
    ensures { result ≡ pos b }
{
    i32::from(b)
}

// The bytes of the entries into `out` from `at` on, as far as there is room: nothing is asked between one and the next.
#[tactic(auto, using(crate::proofs::Entries::entering))]
pub fn copy(list: &[i32], out: &mut [u8], at: usize)
    ensures { out.new ≡ sets out.old at (low_bytes list.now) }
{
    let count = wire::in_room(list.len(), out.len(), at);
    for i in 0..count {
        out[at + i] = byte_of(list[i]);
    }
}
