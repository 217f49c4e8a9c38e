// How many entries a list may have; numbers and entries of a lent list, tested against a range that does not reach below 0.
#![tactic(auto)]

ghost use Rattle.std.specs.Prelude.{◌≡◌};
ghost use Rattle.refusals.specs.Answers.{every};
ghost use Rattle.ranges.specs.Ranges.{within};

// "An array or string in one command has at most 256 entries"; report strings have a limit of their own.
pub const MOST_ENTRIES: usize = 256;

// Both ends are two words at a call, here and in `reports`: a range would be made at each call to be taken apart in the promise.
#[tactic(auto, using(crate::proofs::Entries::ranges))]
pub fn is_within(least: u32, most: u32, v: i32) -> bool
    ensures { result ≡ within least most v }
{
    !signs::is_negative(v) && (least..=most).contains(&signs::magnitude(v))
}

#[tactic(auto, using(refusals::proofs::Many::checkings, crate::proofs::Entries::entry_next))]
pub fn are_within(least: u32, most: u32, list: &[i32]) -> bool
    ensures { result ≡ every (within least most) list.now }
{
    // several entries are tested at once where the loop has no way out of its middle; `all`, which has one, was tried (docs/BENCHMARKS.md)
    let mut good = true;
    for v in list {
        good &= is_within(least, most, *v);
    }
    good
}
