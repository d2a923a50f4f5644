//! The figures of a half hour, in whole numbers: wave height and mean period from the six bands of
//! a spectrum, and the verdict on both.
#![tactic(auto)]

ghost use Rattle.std.specs.Prelude.{Some, ◌≡◌, ◌+◌, ◌*◌, ◌^◌, ◌<◌, ◌≤◌, ◌↔◌, ℕ, IsTrue};
ghost use Rattle.figures.specs.Figures.{counted, energy, frequencies, weighted, IsRoot, IsGood};
ghost use Rattle.figures.specs.Texts.{text_of_reading, text_of_quality};

use std::fmt;

/// A band's energy counts at most this much (square millimetres), so that nothing below overflows.
const MOST_ENERGY: u64 = 1_000_000;
/// the greatest plausible height, in millimetres
const MOST_HEIGHT: u64 = 30_000;
/// the least plausible period, in milliseconds
const LEAST_PERIOD: u64 = 1_000;
/// the greatest plausible period, in milliseconds
const MOST_PERIOD: u64 = 30_000;

/// A figure with the number of its half hour beside it.
#[derive(Clone, Copy)]
pub struct Figure {
    pub hour: u64,
    pub value: u64,
}

/// Both figures of a report.
#[derive(Clone, Copy)]
pub struct Reading {
    /// significant wave height in millimetres
    pub height: Figure,
    /// mean period in milliseconds
    pub period: Figure,
}

/// The verdict on a reading, with the half hour of its height.
#[derive(Clone, Copy)]
pub struct Quality {
    pub hour: u64,
    pub good: bool,
}

/// What counts of a band.
fn counted_of(band: u64) -> u64
    ensures { result ≡ counted band }
{
    band.min(MOST_ENERGY)
}

/// The energy of all bands.
fn energy_of(bands: &[u64; 6]) -> u64
    ensures value { result ≡ energy bands.now }
    ensures small { result ≤ 6 * 10 ^ 6 }
{
    bands.iter().map(|band| counted_of(*band)).sum()
}

/// Where the bands lie, in mHz.
fn band_frequencies() -> [u16; 6]
    ensures { result ≡ frequencies }
{
    [50, 100, 150, 200, 250, 300]
}

/// What counts of a band, times the square of its frequency.
fn weighted_band(band: u64, frequency: u16) -> u64
    ensures { result ≡ counted band * (frequency * frequency) }
{
    counted_of(band) * u64::from(frequency).pow(2)
}

/// The energy of all bands, each weighted by the square of its frequency.
fn weighted_of(bands: &[u64; 6]) -> u64
    ensures { result ≡ weighted bands.now }
{
    bands
        .iter()
        .zip(band_frequencies().iter())
        .map(|(band, frequency)| weighted_band(*band, *frequency))
        .sum()
}

/// Significant wave height in millimetres: four times the root of the energy. Band k of the six has
/// its energy in square millimetres and lies at 50 * k mHz; it counts at most 1,000,000.
pub fn height(bands: &[u64; 6]) -> u64
    ensures { (root : ℕ) × (result ≡ 4 * root) × IsRoot (energy bands.now) root }
{
    4 * energy_of(bands).isqrt()
}

/// Mean period in milliseconds: the root of energy over weighted energy, of bands as for the height.
/// 0 for a flat sea.
#[tactic(auto, using(crate::proofs::Roots::below_next_square))]
pub fn period(bands: &[u64; 6]) -> u64
    ensures flat { weighted bands.now ≡ 0 → result ≡ 0 }
    ensures at_most { 0 < weighted bands.now →
        result * result * weighted bands.now ≤ energy bands.now * 10 ^ 12 }
    ensures no_less { 0 < weighted bands.now →
        energy bands.now * 10 ^ 12 < (result + 1) * (result + 1) * weighted bands.now }
{
    match weighted_of(bands) {
        0 => 0,
        weighted => (energy_of(bands) * 1_000_000_000_000 / weighted).isqrt(),
    }
}

impl Reading {
    /// Good where both figures carry the same half hour and are plausible: a height of at most
    /// 30,000 mm, a period from 1,000 to 30,000 ms.
    pub fn quality(&self) -> Quality
        ensures hour { result.hour ≡ self.now.height.hour }
        ensures good { IsTrue result.good ↔ IsGood self.now }
    {
        let Reading { height, period } = self;
        let good = height.hour == period.hour
            && height.value <= MOST_HEIGHT
            && (LEAST_PERIOD..=MOST_PERIOD).contains(&period.value);
        Quality {
            hour: height.hour,
            good,
        }
    }
}

impl fmt::Display for Reading {
    ghost output = { λ reading. Some (text_of_reading reading) };

    fn fmt<W: fmt::Write>(&self, f: &mut fmt::Formatter<W>) -> fmt::Result {
        let Reading { height, period } = self;
        write!(
            f,
            "half hour {} height {} mm, half hour {} period {} ms",
            height.hour, height.value, period.hour, period.value
        )
    }
}

impl fmt::Display for Quality {
    ghost output = { λ quality. Some (text_of_quality quality) };

    fn fmt<W: fmt::Write>(&self, f: &mut fmt::Formatter<W>) -> fmt::Result {
        let verdict = if self.good { "good" } else { "not good" };
        write!(f, "half hour {} {verdict}", self.hour)
    }
}
