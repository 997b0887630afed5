// When an old page is still good (note 13): the definition of what a listing uses of an image, in specs/, and its laws, in proofs/. There is no
// code here.

#![tactic(auto)]
