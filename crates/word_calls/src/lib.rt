// What the calls that are lent words say, and the laws that the crates of the C boundary prove their calls by.
#![tactic(auto)]

ghost use Rattle.std.specs.Prelude.{◌≡◌, option_copied};
ghost use Rattle.base.specs.Logic.{pick};
ghost use Rattle.word_calls.specs.NurserySaid.{flag};

// The key that a flag and a key's bytes say, where there is one.
pub fn key_said(keyed: u8, key: &[u8]) -> Option<&[u8]>
    ensures { option_copied result ≡ pick (flag keyed) (Some key.now) None }
{
    if keyed == 0 { None } else { Some(key) }
}
