// What tests compare texts by.
#![tactic(auto)]

ghost use Rattle.std.specs.Prelude.{◌≡◌, ◌↔◌, IsOk};

use std::test::Fail;

// Fails where the text is not the one that is expected.
pub fn check_text(text: &str, expected: &str, what: &str) -> Result<(), Fail>
    ensures { IsOk result ↔ (text.now ≡ expected.now) }
{
    if text == expected {
        return Ok(());
    }
    Err(Fail::new(format_args!("{what}: {text:?}, not {expected:?}")))
}
