// The calls on the core as a whole.
ghost use Rattle.std.specs.Prelude.{◌≡◌};
ghost use Rattle.firmware.specs.Device.{start_tests, start_of, address_tests, set_address_of, sound_tests, after_reset, bus_reset_of, system_events_of};
ghost use Rattle.refusals.specs.Refusals.{judged};

use crate::answer;
use refusals::Refusal;
use state::{Core, Outcome, Speed, SystemEvent, sound, update};

fn judge_start(memory_size: u32) -> Result<(), Refusal>
    ensures { result ≡ judged (start_tests memory_size) }
{
    if 131072 < memory_size {
        return Err(Refusal::MemoryTooLarge);
    }
    Ok(())
}

#[tactic(auto, unfolding(crate::specs::Device::start_of))]
pub fn start(memory_size: u32, speed: Speed) -> Outcome<u32>
    ensures { result ≡ start_of memory_size speed }
{
    let judged = judge_start(memory_size);
    let none = update::started(0, Speed::Full);
    answer::settle(judged, none, update::started(memory_size, speed), 0)
}

fn judge_address(core: Core, address: u32) -> Result<(), Refusal>
    ensures { result ≡ judged (address_tests core address) }
{
    judge_sound(core)?;
    if 127 < address {
        return Err(Refusal::NoSuchAddress);
    }
    Ok(())
}

#[tactic(auto, unfolding(crate::specs::Device::set_address_of))]
pub fn set_address(core: Core, address: u32) -> Outcome<u32>
    ensures { result ≡ set_address_of core address }
{
    let judged = judge_address(core, address);
    answer::settle(judged, core, update::with_address(core, address), 0)
}

pub(crate) fn judge_sound(core: Core) -> Result<(), Refusal>
    ensures { result ≡ judged (sound_tests core) }
{
    if !sound::is_sound(core) {
        return Err(Refusal::NotSound);
    }
    Ok(())
}

fn after_reset(core: Core, speed: Speed) -> Core
    ensures { result ≡ after_reset core speed }
{
    let none = update::started(core.memory_size, speed);
    let events = update::signalled(core.events, SystemEvent::BusReset);
    let marked = update::with_system_events(none, events);
    update::with_address(marked, core.address)
}

#[tactic(auto, unfolding(crate::specs::Device::bus_reset_of))]
pub fn bus_reset(core: Core, speed: Speed) -> Outcome<u32>
    ensures { result ≡ bus_reset_of core speed }
{
    answer::settle(judge_sound(core), core, after_reset(core, speed), 0)
}

// Returns the system events as a number and clears them.
#[tactic(auto, unfolding(crate::specs::Device::system_events_of))]
pub fn system_events(core: Core) -> Outcome<u32>
    ensures { result ≡ system_events_of core }
{
    let judged = judge_sound(core);
    let read = update::with_system_events(core, update::no_system_events());
    answer::settle(judged, core, read, u32::from(core.events))
}
