// The night desk's listing as a capture file.
#![tactic(auto)]

use listing::Form;

fn main(rt: HostRuntime) {
    listing::run(&rt, Form::Capture);
}
