use dependence::fault::GraphFault;
use model::Layer;
use std::process::Abort;

// A text is refused by this number at this line and column (0 for none), or accepted (number 0). The note tells which text it is.
pub(crate) fn told<T: Drop>(
    rt: &impl Abort,
    reading: Result<T, GraphFault>,
    note: &str,
    number: usize,
    line: usize,
    column: usize,
) {
    match reading {
        Ok(_) => assert_eq!(rt; number, 0, "{note}"),
        Err(fault) => {
            let layer = if number == 7 {
                Layer::Graph
            } else {
                Layer::Text
            };
            assert_eq!(rt; fault.number(), number, "{note}");
            assert_eq!(rt; fault.layer(), layer, "{note}");
            assert_eq!(rt; fault.line(), Some(line), "{note}");
            assert_eq!(rt; fault.column().unwrap_or(0), column, "{note}");
        }
    }
}
