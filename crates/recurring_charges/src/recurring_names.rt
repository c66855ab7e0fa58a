// The bank's names in the book of recurring charges, without accents.
ghost use Rattle.std.specs.Prelude.{◌≡◌};

use crate::recurring::{HEADER, RECURRENCE, RecurringCharges, TRAILER};
use layouts::kinds::Kind;
use layouts::named::Named;

static KINDS: [Kind; 3] = [HEADER, RECURRENCE, TRAILER];

static HEADER_NAMES: [&'static str; 20] = [
    "TIPO DE REGISTRO",
    "CODIGO OPERACAO",
    "LITERAL DE REMESSA",
    "CODIGO DO SERVICO",
    "LITERAL DO SERVICO",
    "ISBP DO PSP RECEBEDOR",
    "TIPO DE INSCRICAO DO RECEBEDOR",
    "No INSCRICAO DO RECEBEDOR",
    "AGENCIA DO RECEBEDOR",
    "CONTA DO RECEBEDOR",
    "TIPO DE CONTA",
    "CHAVE PIX",
    "DATA DE GERACAO",
    "CODIGO DO CONVENIO",
    "EXCLUSIVO DO RECEBEDOR",
    "NOME DO RECEBEDOR",
    "BRANCOS",
    "NUMERO SEQUENCIAL DA REMESSA",
    "VERSAO DO ARQUIVO",
    "NUMERO SEQUENCIAL DO REGISTRO",
];

static RECURRENCE_NAMES: [&'static str; 23] = [
    "TIPO DE REGISTRO",
    "CODIGO DE OCORRENCIA",
    "TIPO DE COBRANCA RECORRENTE",
    "TIPO DE INSCRICAO DO DEVEDOR",
    "No INSCRICAO DO DEVEDOR",
    "NOME DO DEVEDOR",
    "TXID",
    "CONTRATO",
    "OBJETO",
    "PERIODICIDADE",
    "INDICADOR PRAZO DO PRAZO RECORRENCIA",
    "DATA INICIAL",
    "DATA FINAL",
    "INDICADOR TIPO DE VALOR DA RECORRENCIA",
    "VALOR DA RECORRENCIA",
    "INDICADOR VALOR MINIMO DO RECEBEDOR",
    "VALOR MINIMO DO RECEBEDOR",
    "POLITICA RETENTATIVA",
    "ID DA RECORRENCIA",
    "LOCATION",
    "EXCLUSIVO PSP DO RECEBEDOR",
    "BRANCOS",
    "NUMERO SEQUENCIAL",
];

static TRAILER_NAMES: [&'static str; 5] = [
    "TIPO DE REGISTRO",
    "BRANCOS",
    "VALOR TOTAL",
    "QUANTIDADE DE REGISTROS",
    "NUMERO SEQUENCIAL",
];

impl Named for RecurringCharges {
    fn kinds(&self) -> &'static [Kind] {
        &KINDS
    }

    fn title(&self, kind: Kind) -> &'static str {
        match kind.mark as char {
            '0' => "Header do Arquivo Remessa (Registro '0')",
            'A' => "Segmento Rec - Padrao para recorrencias (Registro 'A')",
            '9' => "Trailer de Arquivo (Registro '9')",
            _ => "",
        }
    }

    fn names(&self, kind: Kind) -> &'static [&'static str] {
        match kind.mark as char {
            '0' => &HEADER_NAMES,
            'A' => &RECURRENCE_NAMES,
            '9' => &TRAILER_NAMES,
            _ => &[],
        }
    }
}
