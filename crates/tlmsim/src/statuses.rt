ghost use Rattle.std.specs.Prelude.{◌≡◌};
ghost use Rattle.tlmsim.specs.Headline as headline;
ghost use Rattle.tlmsim.specs.Telling as telling;

use command_line::sim_model_api::Stop;
use run_input::result_texts_api::Refusal;

/// The status of a session that ended so.
pub fn stop_status(stop: Stop) -> u8
    ensures { result ≡ headline.stop_status stop }
{
    match stop {
        Stop::Done | Stop::Stopped => 0,
        Stop::Fault(_) => 5,
        Stop::Budget => 6,
        Stop::WriteFault => 7,
        Stop::NoMemory => 8,
        Stop::Replay { place: _ } => 9,
    }
}

/// The status of a refusal.
pub fn refusal_status(refusal: &Refusal) -> u8
    ensures { result ≡ telling.refusal_status refusal.now }
{
    match refusal {
        Refusal::Usage => 1,
        Refusal::Read(_) => 2,
        Refusal::Model(_) | Refusal::Bus(_) => 3,
        Refusal::Script(_) | Refusal::Replay(_) => 4,
        Refusal::TooLarge(_) => 10,
    }
}
