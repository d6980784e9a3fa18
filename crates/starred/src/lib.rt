// The starred examples of documents 01 and 02: specs/ and proofs/ hold them, and there is no function.
#![tactic(auto)]
