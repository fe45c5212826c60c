//! Theorems about all reports.
ghost use Rattle.view_test_report.specs.Xml.{AllStayInside};

/// States that no bytes of a file end a text of the document before its end.
pub fn texts_stay_inside()
    ensures { AllStayInside }
{}
