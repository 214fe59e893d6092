// Cells keep their widths under every call, and cells that hold no row are untouched: proofs only.
#![tactic(auto)]
