//! Values that are converted, borrowed, copied, compared and shown.

mod taken;
mod texts;
