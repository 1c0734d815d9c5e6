// What holds of every report: each function's contract is a theorem.
ghost use Rattle.report.specs.Laws.{OneReport, LinesNameTheListed, LinesApart};

pub fn a_text_has_one_report() -> u8
    ensures { OneReport }
{
    0
}

pub fn lines_name_the_listed_codes() -> u8
    ensures { LinesNameTheListed }
{
    0
}

pub fn a_line_names_one_code() -> u8
    ensures { LinesApart }
{
    0
}
