// What is found in an image of at most `limit` bytes, and what mend makes of one. (FORMAT 11)
#![tactic(auto)]

ghost use Rattle.std.specs.Prelude.{◌≡◌};
ghost use Rattle.model.specs.Programs as model;
ghost use Rattle.scan.specs.Answers.{as_scan};
ghost use Rattle.findings.specs.declared.Rejected.TheVariants.{Refused};
ghost use Rattle.findings.specs.Answers.{as_found, as_outcome, left_within, uncorrectable_in};

use ecc::EccReport;
use error::Refusal;
use mending::Mending;

// Why an image is not looked at, or not mended.
#[derive(Clone, Copy, Debug, PartialEq, Eq)]
pub enum Rejected {
    TooLong,
    Refused(Refusal),
}

impl From<Refusal> for Rejected {
    ghost from_gives = { λ r e. e ≡ Refused r };

    fn from(refusal: Refusal) -> Rejected {
        Rejected::Refused(refusal)
    }
}

#[derive(Clone, Copy, Debug, PartialEq, Eq)]
pub struct Findings {
    pub regions: u16,
    pub needs_scrub: bool,
    pub report: Option<EccReport>,
}

pub fn look(image: &[u8], limit: usize) -> Result<Findings, Rejected>
    ensures { as_found result ≡ model.look limit image.now }
{
    if image.len() > limit {
        return Err(Rejected::TooLong);
    }
    let header = view::parse(image)?;
    Ok(Findings {
        regions: header.region_count,
        needs_scrub: header.needs_scrub(),
        report: scan::verify_all(image, header),
    })
}

// Mends an image in place. One that is too long, or refused, is left as it was.
pub fn mend_within(image: &mut [u8], limit: usize) -> Result<Mending, Rejected>
    ensures is { as_outcome result image.new ≡ model.mend_within limit image.old }
    ensures leaves { image.new ≡ left_within (model.mend_within limit image.old) image.old }
{
    if image.len() > limit {
        return Err(Rejected::TooLong);
    }
    Ok(mending::mend(image)?)
}

// How many words of a report are uncorrectable; none where there is no report.
pub fn uncorrectable_in(report: Option<EccReport>) -> usize
    ensures { result ≡ uncorrectable_in (as_scan report) }
{
    report.unwrap_or_default().uncorrectable
}
