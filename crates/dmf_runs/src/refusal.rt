ghost use Rattle.std.specs.Prelude.{◌≡◌, ◌≤◌, length};
ghost use Rattle.dmf_session.specs.RefusalText as text;

use dmf_session::Refusal;

/// The text that a session writes about a refused command, after the line's number. Takes no memory.
pub fn refusal_text(refusal: &Refusal) -> &'static [u8]
    ensures text { result.now ≡ text.refusal_text refusal.now }
    ensures short { length result.now ≤ 24 }
{
    refusal.text().as_bytes()
}
