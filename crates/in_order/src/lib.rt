// How epochs in counter order (`runs`) and in any order (`groups`) meet: theorems alone. Read specs/InOrder.antt.
#![tactic(auto)]
