// The block cipher of DSTU 7624:2014 (Kalyna) with block and key of 256 bits. It is defined in specs/, with its laws; the code is in the crates above.
#![tactic(auto)]
