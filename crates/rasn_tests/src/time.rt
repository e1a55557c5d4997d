//! UTCTime (X.690 11.8), GeneralizedTime (11.7) and DATE (8.26).

mod whole;
mod writes;
