// The promises of the C interface: laws over its definitions, and no function.
#![tactic(auto)]
