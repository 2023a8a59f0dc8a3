// Terms: which texts they are, and what each says. No code: the reader and the writer of terms stand on these definitions.
#![tactic(auto)]
