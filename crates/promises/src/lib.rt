// The demands of the calls themselves, as theorems about the definitions that their contracts cite: specs/Demands first.
#![tactic(auto)]
