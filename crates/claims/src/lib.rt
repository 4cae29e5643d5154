// What document 01 asks for beside the contracts: that no second answer fits any of them, and its figures as one table. Theorems alone; no code.
#![tactic(auto)]
