// The rules of the image, over plain numbers and lists: definitions and laws only.
#![tactic(auto)]
