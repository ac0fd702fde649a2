// Why a text is not written.
ghost use Rattle.report.specs.Refusals.{report_refusal, page_refusal};

use release::Refusal;

// The result is shorter than the names; the output is shorter than the text.
#[derive(Clone, Copy, Debug, PartialEq, Eq)]
pub enum ReportRefusal {
    ShortResult,
    ShortOutput,
}

impl Refusal for ReportRefusal {
    ghost numbers = { report_refusal };

    fn number(self) -> u8 {
        match self {
            ReportRefusal::ShortResult => 31,
            ReportRefusal::ShortOutput => 33,
        }
    }

    // Neither release is concerned.
    fn side(self) -> u8 {
        0
    }
}

// The bytes are no result: more than there can be names, or one of them above 3. The output is shorter than the page.
#[derive(Clone, Copy, Debug, PartialEq, Eq)]
pub enum PageRefusal {
    NoResult,
    ShortOutput,
}

impl Refusal for PageRefusal {
    ghost numbers = { page_refusal };

    // Both have one number.
    fn number(self) -> u8 {
        51
    }

    // Neither release is concerned.
    fn side(self) -> u8 {
        0
    }
}
