// No code: in specs/ the assignment problem by its definition, in proofs/ its laws.
#![tactic(auto)]
