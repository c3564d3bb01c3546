// Converts the certificate of the plan in the working folder: the program is in plan.lin, the certificate in plan.wit. The argument is what to write: sparse, dense or trimmed.
#![tactic(auto)]

use std::io::Result;

fn main(rt: HostRuntime) -> Result<()> {
    plan_conversions::run(&rt, "plan.lin", "plan.wit")
}
