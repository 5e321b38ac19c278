// What holds of the operator's text: laws of the reader and the writer of `sheet_text`, in specs/ and proofs/. No code.
#![tactic(auto)]
