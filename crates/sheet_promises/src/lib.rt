// The promises of the repair sheet: laws over its definitions, and no function.
#![tactic(auto)]
