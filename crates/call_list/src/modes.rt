ghost use Rattle.std.specs.Prelude.{◌≡◌};
ghost use Rattle.call_list.specs.Modes.{mode_of};

use telegram::Mode;

// The mode with a two-letter name. `Mode::name` writes the same letters, as `read_list` says.
pub(crate) fn mode_of(word: &[u8]) -> Option<Mode>
    ensures { result ≡ mode_of word.now }
{
    match word {
        b"SB" => Some(Mode::Standby),
        b"SR" => Some(Mode::StaffResponsible),
        b"FS" => Some(Mode::FullSupervision),
        b"OS" => Some(Mode::OnSight),
        b"LS" => Some(Mode::LimitedSupervision),
        b"SH" => Some(Mode::Shunting),
        b"UN" => Some(Mode::Unfitted),
        b"TR" => Some(Mode::Trip),
        b"PT" => Some(Mode::PostTrip),
        b"SF" => Some(Mode::SystemFailure),
        _ => None,
    }
}
