// No code: what a group gets depends on its own record and its own calls. The definitions are in specs/, the theorems in proofs/.
#![tactic(auto)]
