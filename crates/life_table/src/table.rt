//! The table of lives.
ghost use Rattle.std.specs.Prelude.{◌≡◌, ◌≤◌, IfOk, IfSome, option_map, map};
ghost use Rattle.life_table.specs.LifeTable as spec;
ghost use Rattle.life_table.specs.Rules.{IsTable};
ghost use Rattle.life_table.specs.Views.{text_view, radar_view, table_of};

use crate::products::{CONUS_RADAR, REGIONAL_RADAR, TEXT_PRODUCT};
use crate::rows::{
    KeptRadar, KeptText, RadarRow, TextRow, greatest_radar_life, greatest_text_life, radar_of,
    text_of,
};
use fisb_time::TimeForm;
use std::alloc::{AllocError, Global};
use std::marker::Model;
use std::rc::Rc;

/// How long weather lives, and in which form its time is sent, by type of report and by radar product. Every table keeps
/// the rules of the format. Copies share their rows.
#[derive(Debug, Drop)]
pub struct LifeTable {
    pub(crate) late: u64,
    pub(crate) texts: Rc<Vec<KeptText>>,
    pub(crate) radars: Rc<Vec<KeptRadar>>,
}

impl Model for LifeTable {
    ghost use Rattle.life_table.specs.LifeTable as spec;

    ghost Value = { spec.LifeTable };

    ghost use Rattle.std.specs.Prelude.{map};
    ghost use Rattle.life_table.specs.Rules.{IsTable};
    ghost use Rattle.life_table.specs.Views.{text_view, radar_view, table_of};

    ghost view = { λ t. table_of t.late t.texts.value.items t.radars.value.items };

    ghost invariant = { λ t. IsTable (table_of t.late t.texts.value.items t.radars.value.items) };
}

impl LifeTable {
    /// How long after it was sent a frame may be heard, in seconds.
    pub fn late(&self) -> u64
        ensures late { result ≡ self.now.late }
        ensures rules { IsTable self.now }
    {
        self.late
    }

    /// The row of reports that begin with this word.
    pub fn text_row(&self, first_word: &str) -> Option<TextRow<'_>>
        ensures row { option_map (λ r. spec.row first_word.now r.kind.now r.words r.life r.form)
            result ≡ spec.text_row self.now first_word.now }
        ensures bounded { IfSome result (λ row. row.life ≤ spec.thirty_days) }
        ensures rules { IsTable self.now }
    {
        let Some(row) = text_of(self.texts.as_slice(), first_word) else {
            return None;
        };
        Some(TextRow {
            kind: row.kind.as_str(),
            words: row.words,
            life: row.life,
            form: row.form,
        })
    }

    /// The row of a radar product.
    pub fn radar_row(&self, product: u16) -> Option<RadarRow>
        ensures row { option_map (λ r. spec.radar product r.life r.form) result
            ≡ spec.radar_row self.now product }
        ensures bounded { IfSome result (λ row. row.life ≤ spec.thirty_days) }
        ensures rules { IsTable self.now }
    {
        let Some(row) = radar_of(self.radars.as_slice(), product) else {
            return None;
        };
        Some(RadarRow {
            life: row.life,
            form: row.form,
        })
    }

    /// The greatest life of a product's rows; reports are product 413.
    pub fn longest(&self, product: u16) -> Option<u64>
        ensures life { result ≡ spec.longest self.now product }
        ensures bounded { IfSome result (λ life. life ≤ spec.thirty_days) }
        ensures rules { IsTable self.now }
    {
        if product == TEXT_PRODUCT {
            greatest_text_life(self.texts.as_slice())
        } else {
            greatest_radar_life(self.radars.as_slice(), product)
        }
    }

    /// The same table again: it lends the same rows.
    pub fn copy(&self, alloc: Global) -> Result<LifeTable, AllocError>
        ensures { IfOk result (λ copy. copy ≡ self.now) }
    {
        Ok(LifeTable {
            late: self.late,
            texts: self.texts.clone()?,
            radars: self.radars.clone()?,
        })
    }

    /// The table that holds where none is given.
    pub fn default_table(alloc: Global) -> Result<LifeTable, AllocError>
        ensures { IfOk result (λ table. table ≡ spec.default_table) }
    {
        let texts = default_texts(alloc)?;
        let radars = default_radars(alloc)?;
        LifeTable::of_rows(alloc, 600, texts, radars)
    }

    /// The table of these rows, which keep the rules.
    pub(crate) fn of_rows(
        alloc: Global,
        late: u64,
        texts: Vec<KeptText>,
        radars: Vec<KeptRadar>,
    ) -> Result<LifeTable, AllocError>
        requires { IsTable (table_of late texts.items radars.items) }
        ensures { IfOk result (λ table. table ≡ table_of late texts.items radars.items) }
    {
        let texts = Rc::new(alloc, texts)?;
        let radars = Rc::new(alloc, radars)?;
        Ok(LifeTable {
            late,
            texts,
            radars,
        })
    }
}

#[tactic(auto, unfolding(crate::specs::LifeTable::default_table))]
fn default_texts(alloc: Global) -> Result<Vec<KeptText>, AllocError>
    ensures { IfOk result (λ rows. map text_view rows.items ≡ spec.default_table.texts) }
{
    let rows = [
        KeptText::new(alloc, "METAR", "METAR", 2, 7_200, TimeForm::Minute)?,
        KeptText::new(alloc, "SPECI", "METAR", 2, 7_200, TimeForm::Minute)?,
        KeptText::new(alloc, "TAF", "TAF", 2, 28_800, TimeForm::Minute)?,
        KeptText::new(alloc, "TAF.AMD", "TAF", 2, 28_800, TimeForm::Minute)?,
        KeptText::new(alloc, "PIREP", "PIREP", 3, 10_800, TimeForm::Minute)?,
        KeptText::new(alloc, "WINDS", "WINDS", 3, 86_400, TimeForm::DayMinute)?,
    ];
    Ok(Vec::from_array(alloc, rows)?)
}

#[tactic(auto, unfolding(crate::specs::LifeTable::default_table))]
fn default_radars(alloc: Global) -> Result<Vec<KeptRadar>, AllocError>
    ensures { IfOk result (λ rows. map radar_view rows.items ≡ spec.default_table.radars) }
{
    let form = TimeForm::Minute;
    let rows = [
        KeptRadar {
            product: REGIONAL_RADAR,
            life: 1_200,
            form,
        },
        KeptRadar {
            product: CONUS_RADAR,
            life: 2_700,
            form,
        },
    ];
    Ok(Vec::from_array(alloc, rows)?)
}
