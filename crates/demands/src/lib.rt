// Each call of the core once, with the behaviour's step as its contract: so what is proved of the behaviour is proved of the code.
// Arguments stand one by one, as in the calls.
#![tactic(auto)]

ghost use Rattle.demands.specs.Behaviour.{Start, Configure, Arm, Disarm, SetHalt, ClearHalt, SetAddress, BusReset, RecordEvents, SystemEvents, Packet, Timeout, Steps, StepsOnBus};

use bus::Answer;
use state::{Condition, Core, Endpoint, Outcome, Speed};

fn start(core: Core, memory_size: u32, speed: Speed) -> Outcome<u32>
    ensures { Steps core (Start memory_size speed) result }
{
    firmware::start(memory_size, speed)
}

fn configure(core: Core, index: usize, condition: Condition, endpoint: Endpoint) -> Outcome<u32>
    ensures { Steps core (Configure index condition endpoint) result }
{
    firmware::configure(core, index, condition, endpoint)
}

fn arm(core: Core, index: usize, buffer: u32, base: u32, length: u32) -> Outcome<u32>
    ensures { Steps core (Arm index buffer base length) result }
{
    firmware::arm(core, index, buffer, base, length)
}

fn disarm(core: Core, index: usize, buffer: u32) -> Outcome<u32>
    ensures { Steps core (Disarm index buffer) result }
{
    firmware::disarm(core, index, buffer)
}

fn set_halt(core: Core, index: usize) -> Outcome<u32>
    ensures { Steps core (SetHalt index) result }
{
    firmware::set_halt(core, index)
}

fn clear_halt(core: Core, index: usize) -> Outcome<u32>
    ensures { Steps core (ClearHalt index) result }
{
    firmware::clear_halt(core, index)
}

fn set_address(core: Core, address: u32) -> Outcome<u32>
    ensures { Steps core (SetAddress address) result }
{
    firmware::set_address(core, address)
}

fn bus_reset(core: Core, speed: Speed) -> Outcome<u32>
    ensures { Steps core (BusReset speed) result }
{
    firmware::bus_reset(core, speed)
}

fn record_events(core: Core, index: usize) -> Outcome<u32>
    ensures { Steps core (RecordEvents index) result }
{
    firmware::record_events(core, index)
}

fn system_events(core: Core) -> Outcome<u32>
    ensures { Steps core SystemEvents result }
{
    firmware::system_events(core)
}

fn packet(core: Core, memory: &mut [u8], reply: &mut [u8], packet: &[u8]) -> Outcome<Answer>
    ensures { StepsOnBus core memory.old reply.old (Packet packet.now) result memory.new reply.new }
{
    bus::packet(core, memory, reply, packet)
}

fn timeout(core: Core, memory: &[u8], reply: &[u8]) -> Outcome<Answer>
    ensures { StepsOnBus core memory.now reply.now Timeout result memory.now reply.now }
{
    bus::timeout(core, memory, reply)
}
