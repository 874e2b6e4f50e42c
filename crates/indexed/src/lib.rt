// What an index tells: theorems alone. Read specs/Growing.antt (a capture that grows), specs/Asking.antt (frames found and counted).
#![tactic(auto)]
