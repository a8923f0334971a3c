// Whole calls that the prover computes stand in specs/.
