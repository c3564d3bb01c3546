// Checks the plan in the working folder: the program in plan.lin, its certificate or trace in plan.wit.
#![tactic(auto)]

use std::io::Result;

fn main(rt: HostRuntime) -> Result<()> {
    plan_files::run(&rt, "plan.lin", "plan.wit")
}
