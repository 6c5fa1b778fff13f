//! The law that a stored database goes on as if it had stayed in memory, stated as the contract of a function.
#![tactic(auto)]

ghost use Rattle.resuming_laws.specs.Resuming.{StoredRunsGoOn};

use executor::laws::sound_states;
use loader_laws::image_read_back;

/// For any two lists of batches: a run of the first that stores its last state, and a run of the second on the stored image, from
/// that state's stamp on, reply and leave what one run of both does, with its numbers and tokens.
pub fn stored_runs_go_on()
    ensures { StoredRunsGoOn }
{
    sound_states();
    image_read_back();
}
