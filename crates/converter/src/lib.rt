#![tactic(auto)]
// The converter: segmented display lists turned into linear ones (document 02, "Segmented memory goes away"). specs/ says what it gives;
// proofs/ shows that the linear frame after an accepted conversion is the segmented one before.
use settings::Settings;

// An accepted conversion: the settings, linear, with TOP and TOW turned, and how many pointers have another first word than before.
#[derive(Clone, Copy)]
pub struct Conversion {
    pub settings: Settings,
    pub pointers: u64,
}
