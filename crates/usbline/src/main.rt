// The night desk's listing as text.
#![tactic(auto)]

use listing::Form;

fn main(rt: HostRuntime) {
    listing::run(&rt, Form::Text);
}
