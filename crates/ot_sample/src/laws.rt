//! A law of the sample article.
ghost use Rattle.ot_sample.specs.Sample.{SampleLines};

/// The sample article for N has 110 + 22 N lines.
pub fn sample_lines()
    ensures { SampleLines }
{}
