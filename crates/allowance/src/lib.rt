// No code: this crate is theorems, in specs/.
#![tactic(auto)]
