// A plot that is stepped until a step takes no module.
ghost use Rattle.plot.specs.Views.{view};
ghost use Rattle.plot.specs.ToTheEnd.{Runs};
ghost use Rattle.runs.specs.Plotted.{Plotted};

use buffered::Buffered;
use plot::plot::Plot;
use plot::stop::Stop;
use sheet::sheet::Sheet;
use sheet::tally::Tally;
use word::source::Source;

/// Steps a plot until the word has ended clean, and else answers what stopped it.
pub fn run_to_end<S: Source + Drop, K: Sheet>(plot: &mut Plot<S>, sheet: &mut K) -> Result<(), Stop>
    ensures { Runs (view (S.Source.means plot.old.source) plot.old.inner) (K.Sheet.means sheet.old) result (K.Sheet.means sheet.new) (view (S.Source.means plot.new.source) plot.new.inner) }
{
    plot.run(sheet)
}

/// A plot that has followed the whole word of a source, from home on, as far as the turtle can go.
pub fn plot_word<S: Source + Drop>(source: S) -> Plot<Buffered<S>>
    ensures { Plotted (S.Source.means source) (view (⟦<Buffered<S> as Source>⟧.means result.source) result.inner) }
{
    let mut plot = Plot::new(Buffered::new(source));
    // a tally has space for every word, and a fault is the ending of the plot
    let _ = run_to_end(&mut plot, &mut Tally::new());
    plot
}
