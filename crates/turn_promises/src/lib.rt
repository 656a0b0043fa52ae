// What is promised of the program's run, as theorems on lists: no function stands here. One turn of the program is `turn::turn`.
#![tactic(auto)]
