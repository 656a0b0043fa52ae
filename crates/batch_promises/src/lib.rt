// What is promised of calls over a batch, as theorems: no function stands here. The call itself is `batch::run`.
#![tactic(auto)]
