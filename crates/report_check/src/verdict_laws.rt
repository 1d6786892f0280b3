// What is true of verdicts.
ghost use Rattle.report_check.specs.ReportShape.{ReportsHaveShape};
ghost use Rattle.report_check.specs.ReportVerdict.{VerdictsAreOne, YesIsAgreement};

/// The law that each report of which there is a text has the shape that a check asks for.
pub fn reports_have_shape()
    ensures { ReportsHaveShape }
{}

/// The law that a report and an image have one verdict.
pub fn verdicts_are_one()
    ensures { VerdictsAreOne }
{}

/// The law that it is yes exactly where the report agrees with the image.
pub fn yes_is_agreement()
    ensures { YesIsAgreement }
{}
